// The script that a program runs.
use std::rt::{Env, Files};
use std::{env, fs, io};

// The file that the first argument names, or standard input.
pub fn read_script<R: Env + Files + Input + AllocGlobal>(rt: &R) -> anyhow::Result<String> {
    let mut args = env::args(rt)?;
    let _program = args.next();
    match args.next() {
        Some(path) => Ok(fs::read_to_string(rt, path.as_str())?),
        None => Ok(io::read_to_string(rt.alloc(), rt.reader())?),
    }
}
