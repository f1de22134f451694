//! What a step came to, as a line.
use store::faults::Fault;

/// Prints a step and its outcome.
pub(crate) fn report(
    rt: &HostRuntime,
    step: &str,
    outcome: Result<(), Fault>,
) -> anyhow::Result<()> {
    match outcome {
        Ok(()) => println!(rt; "{step}: done")?,
        Err(fault) => println!(rt; "{step}: {fault}")?,
    }
    Ok(())
}
