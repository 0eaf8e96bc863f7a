// Printing a refusal.

/// Ends a line with the number of a refusal.
pub(crate) fn show_refused<R: Into<u8>>(rt: &HostRuntime, why: R) -> anyhow::Result<()> {
    let code: u8 = why.into();
    println!(rt; "refused {code}")?;
    Ok(())
}
