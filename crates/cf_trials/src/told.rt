//! What a test is told, as a line.
use std::alloc::AllocError;
use std::process::Abort;
use std::test::Fail;

/// Fails where another line was told, or memory was not there.
pub fn is_told(
    rt: &impl Abort,
    told: Result<String, AllocError>,
    wanted: &str,
) -> Result<(), Fail> {
    assert_eq!(rt; told?.as_str(), wanted);
    Ok(())
}
