// The three prefix tests: fixed byte strings compared with the start of the text. They refuse nothing.
ghost use Rattle.std.specs.Prelude.{◌≡◌};
ghost use Rattle.topic.specs.Rules.{ascii, starts};

pub fn is_shared_subscription(text: &[u8]) -> bool
    ensures { result ≡ starts (ascii "$share/") text.now }
{
    text.starts_with(b"$share/")
}

pub fn is_limit_subscription(text: &[u8]) -> bool
    ensures { result ≡ starts (ascii "$limit/") text.now }
{
    text.starts_with(b"$limit/")
}

pub fn is_exclusive_subscription(text: &[u8]) -> bool
    ensures { result ≡ starts (ascii "$exclusive/") text.now }
{
    text.starts_with(b"$exclusive/")
}
