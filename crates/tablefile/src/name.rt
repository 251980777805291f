// The names beside a table's: that of its folder, and that of the new file in it.
ghost use Rattle.std.specs.Prelude.{◌≡◌, ◌+◌, ◌≤◌, length};
ghost use Rattle.slice.specs.Wrote.{Wrote};
ghost use Rattle.tablefile.specs.Names.{new_name, after_slash};

// The new file's name in its folder; the system puts other letters for the last six, so that no file is called so yet.
const NEW: [u8; 21] = *b".pietrunel.new.XXXXXX";

// Writes the pattern of the new file's name at the start of a buffer, and gives back its length.
pub fn put_new_name(folder: &[u8], out: &mut [u8]) -> usize
    requires { length (new_name folder.now) ≤ length out.old }
    ensures { Wrote 0 (new_name folder.now) out.old out.new result }
{
    slice::copy(out, 0, folder);
    let n = folder.len();
    slice::copy(out, n, &NEW);
    n + 21
}

// How many bytes of a path name its folder: those up to its last slash, which is counted.
pub fn folder(path: &[u8]) -> usize
    ensures { (result ≡ after_slash path.now) × (result ≤ length path.now) }
{
    for i in (0..path.len()).rev() {
        if path[i] == b'/' {
            return i + 1;
        }
    }
    0
}
