// The action that the name of a command, the number among its fixed words and what its options say make.
ghost use Rattle.std.specs.Prelude.{◌≡◌, List, ℕ};
ghost use Rattle.model.specs.Command.{rule_of};
ghost use Rattle.model.specs.Parse.{action_of};
ghost use Rattle.command.specs.Command.{model_action};
ghost use Rattle.command.specs.Words.{model_name};
ghost use Rattle.values.specs.Values.{model_said};
ghost use Rattle.arguments.specs.Fixed.{model_fixed};

use arguments::Fixed;
use command::{Action, End, Increment, Join, Name, Set, Swap};
use values::Said;

// The action of a command.
#[tactic(auto, unfolding(command::specs::Command::model_action))]
pub fn action_of(name: Name, fixed: Fixed, said: Said) -> Action
    ensures { (v : List ℕ) → model_action v result ≡ action_of (model_name name) v (model_fixed (rule_of (model_name name)).number fixed) (model_said said) }
{
    let Fixed { by, version } = fixed;
    let terms = said.terms;
    let expire = terms.expire;
    match name {
        Name::Exset => Action::Exset(Set {
            terms,
            flags: said.flags,
            with_version: said.with_version,
        }),
        Name::Exget => Action::Exget {
            with_flags: said.with_flags,
        },
        Name::Exsetver => Action::Exsetver { version },
        Name::Exincrby => Action::Exincrby(Increment {
            by,
            terms,
            min: said.min,
            max: said.max,
            non_negative: said.non_negative,
            with_version: said.with_version,
        }),
        Name::Excas => Action::Excas(Swap { version, expire }),
        Name::Excad => Action::Excad { version },
        Name::Exappend => Action::Exjoin(Join {
            end: End::Back,
            terms,
        }),
        Name::Exprepend => Action::Exjoin(Join {
            end: End::Front,
            terms,
        }),
        Name::Exgae => Action::Exgae { expire },
        Name::Del => Action::Del,
    }
}
