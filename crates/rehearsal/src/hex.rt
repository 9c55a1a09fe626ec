// Octets as text.
ghost use Rattle.std.specs.Prelude.{Some};
ghost use Rattle.rehearsal.specs.Words.{pairs, pairs_or_none};

use std::fmt;

// A pair of hexadecimal digits for each octet.
#[derive(Clone, Copy)]
pub(crate) struct Pairs<'o>(pub(crate) &'o [u8]);

impl fmt::Display for Pairs<'_> {
    ghost output = { λ s. Some (pairs s.0.now) };

    fn fmt<W: fmt::Write>(&self, f: &mut fmt::Formatter<W>) -> fmt::Result {
        for &octet in self.0 {
            write!(f, "{octet:02x}")?;
        }
        Ok(())
    }
}

// The same, or a dash for none.
#[derive(Clone, Copy)]
pub(crate) struct PairsOrNone<'o>(pub(crate) &'o [u8]);

impl fmt::Display for PairsOrNone<'_> {
    ghost output = { λ s. Some (pairs_or_none s.0.now) };

    fn fmt<W: fmt::Write>(&self, f: &mut fmt::Formatter<W>) -> fmt::Result {
        if self.0.is_empty() {
            return write!(f, "-");
        }
        let pairs = Pairs(self.0);
        write!(f, "{pairs}")
    }
}
