ghost use Rattle.std.specs.Prelude.{IfSome, IfNone};
ghost use Rattle.ert_audit.specs.Cuts.{IsCutAt, IsNowhereIn};

/// The bytes up to the first separator, and those after it; nothing where no separator is there.
pub(crate) fn cut(bytes: &[u8], separator: u8) -> Option<(&[u8], &[u8])>
    ensures some { IfSome result (λ x. IsCutAt separator bytes.now x.0.now x.1.now) }
    ensures none { IfNone result (IsNowhereIn separator bytes.now) }
{
    let end = bytes.iter().position(|b| *b == separator)?;
    Some((&bytes[..end], &bytes[end + 1..]))
}
