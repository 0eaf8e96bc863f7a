// Figures, each printed with what it is answered.

/// What is given, with its name.
#[derive(Clone, Copy)]
pub(crate) struct Figure<'a, I> {
    pub(crate) name: &'a str,
    pub(crate) given: I,
}

/// Prints each figure by its name and what is given.
pub(crate) fn show_figures<I: Copy, F: Fn(&str, I) -> anyhow::Result<()>>(
    figures: &[Figure<'_, I>],
    show: F,
) -> anyhow::Result<()>
    requires { F.IsAlwaysCallable show }
{
    for figure in figures {
        show(figure.name, figure.given)?;
    }
    Ok(())
}
