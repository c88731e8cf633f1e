//! Whether look-ups of a handle bring the list of their store's core up to date.
ghost use Rattle.std.specs.Prelude.{◌≡◌};

/// Whether a look-up that finds nothing in the list of its store's core lists the folders of packs again.
#[derive(Clone, Copy)]
pub enum RefreshMode {
    /// It does, once all indices of the list are loaded and tried.
    AfterAllIndicesLoaded,
    /// It answers from the list as it is. The folders are listed only where the core's list was never read.
    Never,
}

impl Default for RefreshMode {
    fn default() -> RefreshMode
        ensures { result ≡ RefreshMode.AfterAllIndicesLoaded }
    {
        RefreshMode::AfterAllIndicesLoaded
    }
}

impl RefreshMode {
    /// From now on no look-up lists the folders again.
    pub fn never(&mut self)
        ensures never { self.new ≡ RefreshMode.Never }
    {
        *self = RefreshMode::Never;
    }
}
