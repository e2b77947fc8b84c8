// What an edit asks of the display.

/// What is to be done after a key.
#[derive(Clone, Copy, PartialEq, Eq, Debug)]
pub enum DisplayAction {
    /// There was nothing to do.
    Nothing,
    /// The typed character alone is to be written, where the cursor stands.
    Letter,
    /// The row is to be drawn anew.
    Redraw,
    /// The text is finished.
    Finish,
    /// The prompt is given up.
    Cancel,
}
