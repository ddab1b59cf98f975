// The runs of the files that are named, one after the other. The first word is the program's own name.
use memory::Memory;
use playing::play_all;
use std::env::FillError;
use std::rt::{Env, Files};
use std::{fs, io, str};

// How many words there are.
pub fn count(rt: &impl Env) -> usize {
    for i in 0..usize::MAX {
        if let Err(FillError::NotPresent) = rt.arg(i, &mut []) {
            return i;
        }
    }
    usize::MAX
}

// Of a file that can't be opened nothing is printed; the reason goes to standard error.
fn play_path(rt: &(impl Files + Print + Eprint), path: &str, m: &mut Memory) -> io::Result<()> {
    match fs::open(rt, path) {
        Ok(mut input) => {
            println!(rt; "{path}")?;
            play_all(&mut input, &mut io::writer(rt), m, true)
        }
        Err(why) => eprintln!(rt; "{path}: {why}"),
    }
}

// A path is text.
fn play_file(rt: &(impl Files + Print + Eprint), name: &[u8], m: &mut Memory) -> io::Result<()> {
    match str::from_utf8(name) {
        Ok(path) => play_path(rt, path, m),
        Err(why) => eprintln!(rt; "a file's name is no text: {why}"),
    }
}

// No path has more than 4,096 bytes, and a longer word is handed out as none at all.
fn play_word(rt: &(impl Env + Files + Print + Eprint), i: usize, m: &mut Memory) -> io::Result<()> {
    let mut name = [0u8; 4096];
    match rt.arg(i, &mut name) {
        Ok(n) => play_file(rt, &name[..n], m),
        Err(_) => play_file(rt, b"", m),
    }
}

pub fn play_each(
    rt: &(impl Env + Files + Print + Eprint),
    words: usize,
    m: &mut Memory,
) -> io::Result<()> {
    for i in 1..words {
        play_word(rt, i, m)?;
    }
    Ok(())
}
