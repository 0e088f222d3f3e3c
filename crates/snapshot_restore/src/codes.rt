// Whether the codes of a text are those expected (request 113).
ghost use Rattle.std.specs.Prelude.{◌≡◌};
ghost use Rattle.snapshot.specs.Read.{same};

// Whether two lists of codes are the same, in number and value.
pub(crate) fn same_codes(a: &[u16], b: &[u16]) -> bool
    ensures { result ≡ same a.now b.now }
{
    a == b
}
