// Values by the names that a text begins with.
ghost use Rattle.std.specs.Prelude.{◌≡◌, ℕ, List};
ghost use Rattle.std.specs.List.{find};
ghost use Rattle.cases.specs.Names.{begins};

// A value that has a name.
pub trait Name: Copy {
    ghost name_of: { Self → List ℕ };

    // The name.
    fn name(&self) -> &'static str
        ensures { result.now ≡ name_of self.now };
}

// Whether a text begins with a name.
fn begins(text: &str, name: &str) -> bool
    ensures { result ≡ begins text.now name.now }
{
    text.starts_with(name)
}

// The first of these values whose name the text begins with.
pub fn named<T: Name>(values: &[T], text: &str) -> Option<T>
    ensures { result ≡ find (λ v. begins text.now (T.name_of v)) values.now }
{
    values.iter().copied().find(|v| begins(text, v.name()))
}
