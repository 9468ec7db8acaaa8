// The lines that are written: one for each case, with its name, what came, and what should have come where that is something else.
use std::{fmt, io};

// A case's line. `right` says whether what came is what was wanted.
pub(crate) fn line(
    rt: &impl Print,
    name: &str,
    right: bool,
    came: &impl fmt::Display,
    wanted: &impl fmt::Display,
) -> io::Result<()> {
    if right {
        println!(rt; "{name}: {came}")
    } else {
        println!(rt; "{name}: {came} WRONG, should be {wanted}")
    }
}

// Items with a space between them, or a hyphen for none.
#[derive(Clone, Copy)]
pub(crate) struct Listed<'a, T>(pub(crate) &'a [T]);

impl<T: fmt::Display> fmt::Display for Listed<'_, T> {
    fn fmt<W: fmt::Write>(&self, f: &mut fmt::Formatter<W>) -> fmt::Result {
        if self.0.is_empty() {
            return write!(f, "-");
        }
        for (i, item) in self.0.iter().enumerate() {
            if 0 < i {
                write!(f, " ")?;
            }
            write!(f, "{item}")?;
        }
        Ok(())
    }
}
