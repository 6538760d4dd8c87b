// The lines of transitions, by way of a buffer that goes to standard output whenever it is full: a write there costs more than a line.
ghost use Rattle.std.specs.Prelude.{◌<◌};

use std::fmt::{self, Write};

const ROOM: usize = 4096;

// "second action or 65,535"
const NO_SECOND: u16 = field::NO_SECOND as u16;

// Text on its way to standard output. A write that fails is passed over.
#[derive(Drop)]
struct Lines<'a, P> {
    to: &'a P,
    text: [u8; ROOM],
    len: usize,
    ghost within: { len < 4096 },
}

impl<P: Print> Lines<'_, P> {
    fn put(&mut self, byte: u8) {
        let at = self.len;
        self.text[at] = byte;
        if at + 1 < ROOM {
            self.len = at + 1;
        } else {
            let _ = self.to.write_all(&self.text);
            self.len = 0;
        }
    }

    fn flush(&mut self) {
        let _ = self.to.write_all(&self.text[..self.len]);
        self.len = 0;
    }
}

impl<P: Print> fmt::Write for Lines<'_, P> {
    fn write_str(&mut self, s: &str) -> fmt::Result {
        for &byte in s.as_bytes() {
            self.put(byte);
        }
        Ok(())
    }
}

// "number, label, first and second action (`-` for none), inputs, outputs"
fn write_transition<W: Write>(out: &mut W, t: usize, row: &[u16], arcs: &[u16]) -> fmt::Result {
    let &[label, first, second, start, inputs, outputs] = row else {
        return Ok(());
    };
    write!(out, "t {t} {label} {first}")?;
    if second == NO_SECOND {
        out.write_str(" -")?;
    } else {
        write!(out, " {second}")?;
    }
    // From the transition's own arcs on: to skip those before it one by one would cost more than to write it.
    let mut places = arcs[usize::from(start).min(arcs.len())..].iter();
    out.write_str(" :")?;
    for place in places.by_ref().take(usize::from(inputs)) {
        write!(out, " {place}")?;
    }
    out.write_str(" >")?;
    for place in places.take(usize::from(outputs)) {
        write!(out, " {place}")?;
    }
    out.write_str("\n")
}

/// The lines of the first transitions of a net's rows, so many.
pub fn write_transitions<P: Print>(rt: &P, rows: &[u16], transitions: usize, arcs: &[u16]) {
    let mut out = Lines {
        to: rt,
        text: [0; ROOM],
        len: 0,
    };
    for (t, row) in rows.chunks_exact(6).take(transitions).enumerate() {
        let _ = write_transition(&mut out, t, row, arcs);
    }
    out.flush();
}
