// A record as long as a record may be.

// A step of one item of two actions: 3 + 5 bytes.
const STEP: usize = 8;

fn pair(first: u8, second: u8) -> [u8; STEP] {
    [0x20, 0, 5, 0x22, 0, 2, first, second]
}

// The steps {(0,3)}, then {(1,4)} up to 8 bytes before the end, then {(2,5)}.
pub fn fill(out: &mut [u8; field::RECORD_LIMIT]) {
    for step in out.chunks_exact_mut(STEP) {
        step.copy_from_slice(&pair(1, 4));
    }
    out[..STEP].copy_from_slice(&pair(0, 3));
    out[field::RECORD_LIMIT - STEP..].copy_from_slice(&pair(2, 5));
}
