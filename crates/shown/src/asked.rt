// The window that is asked for: a labelled number is 1 to 4,294,967,295 (01 "Numbers, names, sizes"), in decimal without leading zeros; 0 stands for none.
use csexp::decimal;
use std::env::FillError;
use std::rt::Env;

fn number_in(s: &[u8]) -> u32 {
    match decimal(s, 0, u32::MAX as usize) {
        Some(n) if n.next == s.len() => n.value as u32,
        _ => 0,
    }
}

// Whether there is a word at a place. The first word is the program's own name.
fn is_there(rt: &impl Env, i: usize) -> bool {
    !matches!(rt.arg(i, &mut []), Err(FillError::NotPresent))
}

// Ten bytes hold every such number, and a longer argument is handed out as none at all.
pub fn window_asked(rt: &impl Env) -> u32 {
    if is_there(rt, 2) {
        return 0;
    }
    let mut argument = [0u8; 10];
    match rt.arg(1, &mut argument) {
        Ok(n) => number_in(&argument[..n]),
        Err(_) => 0,
    }
}
