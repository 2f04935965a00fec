// Answers as text.
ghost use Rattle.std.specs.Prelude.{Some};
ghost use Rattle.cases.specs.Shown.{list_text, refusal_text, answer_text};

use card::fault::Fault;
use std::fmt;

// Numbers with a blank between two.
#[derive(Clone, Copy, Drop)]
pub struct List<'a>(pub &'a [u8]);

impl fmt::Display for List<'_> {
    ghost output = { λ l. Some (list_text l.0.now) };

    fn fmt<W: fmt::Write>(&self, f: &mut fmt::Formatter<W>) -> fmt::Result {
        if let Some((first, rest)) = self.0.split_first() {
            write!(f, "{first}")?;
            for n in rest {
                write!(f, " {n}")?;
            }
        }
        Ok(())
    }
}

// A refusal by its three numbers.
#[derive(Clone, Copy, Drop)]
pub struct Refusal(pub Fault);

impl fmt::Display for Refusal {
    ghost output = { λ r. Some (refusal_text r.0) };

    fn fmt<W: fmt::Write>(&self, f: &mut fmt::Formatter<W>) -> fmt::Result {
        let number = self.0.number();
        let layer = self.0.layer_number();
        let place = self.0.place;
        write!(f, "NO {number} {layer} {place}")
    }
}

// What was answered, or the refusal.
#[derive(Drop)]
pub struct Answer<T>(pub Result<T, Fault>);

impl<T: fmt::Display> fmt::Display for Answer<T> {
    ghost output = { λ a. answer_text T.output a.0 };

    fn fmt<W: fmt::Write>(&self, f: &mut fmt::Formatter<W>) -> fmt::Result {
        match &self.0 {
            Ok(answer) => write!(f, "{answer}"),
            Err(fault) => write!(f, "{}", Refusal(*fault)),
        }
    }
}
