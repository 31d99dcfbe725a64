// The opening: `open DOMAINHEX D J SIZE`.

// What is asked for: the domain stands in the first bytes of the space.
#[derive(Clone, Copy)]
pub(crate) struct Opening {
    pub domain: usize,
    pub d: usize,
    pub j: usize,
    pub size: usize,
}

// The numbers D, J and SIZE, which is at most 8,192·129 + 64.
fn numbers(line: &[u8], domain: usize) -> Option<Opening> {
    let Some(d) = lines::number::read(lines::word::at(line, 2)) else {
        return None;
    };
    let Some(j) = lines::number::read(lines::word::at(line, 3)) else {
        return None;
    };
    let Some(size) = lines::number::read(lines::word::at(line, 4)) else {
        return None;
    };
    if size > 1056832 {
        return None;
    }
    Some(Opening {
        domain,
        d: d as usize,
        j: j as usize,
        size: size as usize,
    })
}

pub(crate) fn read(line: &[u8], space: &mut [u8]) -> Option<Opening> {
    if lines::word::count(line) != 5 {
        return None;
    }
    if !text::same(lines::word::at(line, 0), b"open") {
        return None;
    }
    let Some(n) = lines::hex::decode(lines::word::at(line, 1), space) else {
        return None;
    };
    numbers(line, n)
}

pub(crate) fn is_one(line: &[u8], space: &mut [u8]) -> bool {
    read(line, space).is_some()
}
