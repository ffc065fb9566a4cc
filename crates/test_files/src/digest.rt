// A digest of all the numbers that a reader hands on.
use narrowed_question::Members;
use register::Register;
use test_report::{mix, mix_bytes, mix_words};

pub fn mix_register(r: &Register<'_>) -> u64 {
    let kinds = (0..r.records).fold(0, |e, i| mix(e, u64::from(r.kind_at(i).0)));
    r.links().fold(kinds, |e, edge| {
        mix(
            mix(mix(e, edge.from as u64), u64::from(edge.link.0)),
            edge.to as u64,
        )
    })
}

pub fn mix_members(q: &Members) -> u64 {
    let d = mix_bytes(q.count as u64, &q.sizes);
    let e = mix_words(mix_words(d, &q.from), &q.to);
    mix_words(mix_bytes(e, &q.numbers), &q.sets)
}
