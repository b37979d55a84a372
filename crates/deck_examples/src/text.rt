#![tactic(auto)]
// Numbers within a line of text.
use std::fmt;

// Hundredths of a dB in 7 columns.
#[derive(Clone, Copy)]
pub(crate) struct InHundredths(pub f32);

impl fmt::Display for InHundredths {
    fn fmt<W: fmt::Write>(&self, f: &mut fmt::Formatter<W>) -> fmt::Result {
        for b in output::hundredths_columns::<7>(self.0) {
            f.write_char(char::from(b))?;
        }
        Ok(())
    }
}
