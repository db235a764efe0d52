//! What holds of all greetings. The function here does nothing: its contract is the law.
ghost use Rattle.std.specs.Prelude.{◌≡◌, List, ℕ};
ghost use Rattle.cmp_hello.specs.HelloText.{HelloText};
ghost use Rattle.cmp_hello.specs.declared.hello.Hello.{Hello};

/// No bytes are the text of two greetings.
pub fn text_determines_hello()
    ensures { (x y : Hello) (bytes : List ℕ) → HelloText x bytes → HelloText y bytes → x ≡ y }
{}
