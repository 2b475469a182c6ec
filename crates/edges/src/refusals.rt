// What the tests ask of a refused call.
use domain::refusal::Refusal;
use std::process::Abort;
use std::test::Fail;

// A call is refused with 1.
pub(crate) fn refused<T: Drop>(rt: &impl Abort, answer: Result<T, Refusal>) -> Result<(), Fail> {
    assert_eq!(rt; answer.err().map(|refusal| refusal.code()), Some(1));
    Ok(())
}
