// Words of a form, by whatever they are read.
ghost use Rattle.std.specs.Prelude.{◌≡◌, option_copied};
ghost use Rattle.run_words.specs.Forms.{Given};

/// Words of a form, as they stand or as somebody else read them.
pub trait Reading<'a> {
    /// What they give.
    ghost given: { Self → Given };

    /// The plain word at a place among the plain words.
    fn plain(&self, place: usize) -> Option<&'a str>
        ensures { option_copied result ≡ (given self.now).plain place };

    /// What is said of the option of this name: its value, or of a flag that it stands.
    fn said(&self, name: &str) -> Option<&'a str>
        ensures { option_copied result ≡ (given self.now).said name.now };
}
