// Words of a line, decoded.
use rules::LaneKind;
use text::Place;

// The bytes that the word of number k writes, put into the space from a place on.
pub(crate) fn word(line: &[u8], k: usize, space: &mut [u8], from: usize) -> Option<Place> {
    if from > space.len() {
        return None;
    }
    let Some(n) = lines::hex::decode(lines::word::at(line, k), &mut space[from..]) else {
        return None;
    };
    if n > space.len() - from {
        return None;
    }
    Some(Place {
        start: from,
        end: from + n,
    })
}

pub(crate) fn bytes(space: &[u8], p: Place) -> &[u8] {
    text::slice(space, p.start, p.end)
}

// `value`, `target` or `asked`.
pub(crate) fn kind(w: &[u8]) -> Option<LaneKind> {
    if text::same(w, b"value") {
        return Some(LaneKind::Value);
    }
    if text::same(w, b"target") {
        return Some(LaneKind::Target);
    }
    if text::same(w, b"asked") {
        return Some(LaneKind::Asked);
    }
    None
}
