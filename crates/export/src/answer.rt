// The number of an answer, for a call that tells C nothing else: that of its refusal, or 0.
ghost use Rattle.std.specs.Prelude.{◌≡◌, IfErr, OnOk};

pub(crate) fn refused<T: Drop, E: Into<u64>>(answer: Result<T, E>) -> u64
    ensures ok { OnOk answer (result ≡ 0) }
    ensures err { IfErr answer (λ e. E.converts e result) }
{
    match answer {
        Ok(_) => 0,
        Err(e) => e.into(),
    }
}
