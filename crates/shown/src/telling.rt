// The line: what is shown, or why nothing is.
use exhibit::show;
use memory::Memory;
use rehearsal::number;
use std::io;
use types::WindowNumber;

// 65,536 bytes hold what is shown of every browser that a run has made: each of at most 32 windows stands in the tree once.
pub fn tell(rt: &impl Print, m: &Memory, w: WindowNumber) -> io::Result<()> {
    let mut text = [0u8; 65536];
    let shown = show(m, w, &mut text, 0);
    match shown {
        Ok(count) => rt.write_all(&text[..count])?,
        Err(_) => print!(rt; "{}", number(shown))?,
    }
    rt.write_all(b"\n")
}
