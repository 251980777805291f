// What the program uses of the machine that it runs on.
use std::env::Env;
use std::fs::File;
use std::random::RandomSource;
use std::rt::Files;
use terminal::Complaints;

pub trait Host: Print + Input + Env + Files<File = File> + RandomSource + Complaints {}

impl Host for HostRuntime {}
