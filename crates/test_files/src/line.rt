// The line of a vector: what came of it in a word, its numbers, and a digest at the end.
use fields::Refusal;
use std::io;

pub fn refused(rt: &impl Print, r: Refusal) -> io::Result<()> {
    let number = r.number();
    let place = r.place();
    print!(rt; "refused {number} {place} ")
}

pub fn read(rt: &impl Print, n: u64) -> io::Result<()> {
    print!(rt; "read {n} ")
}

pub fn wrote(rt: &impl Print, n: u64) -> io::Result<()> {
    print!(rt; "wrote {n} ")
}
