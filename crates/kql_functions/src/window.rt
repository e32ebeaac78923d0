//! The functions that look at other rows.
ghost use Rattle.std.specs.Prelude.{◌≡◌, Contains};
ghost use Rattle.kql_functions.specs.Find.{AreDistinct, named_among, windows};
ghost use Rattle.kql_functions.specs.Names.{window_name};

/// A function that looks at other rows.
#[derive(Clone, Copy, Debug, PartialEq, Eq)]
pub enum Window {
    Prev,
    Next,
    RowCumsum,
    RowNumber,
}

const WINDOWS: [Window; 4] = [
    Window::Prev,
    Window::Next,
    Window::RowCumsum,
    Window::RowNumber,
];

/// Every window function.
pub fn windows() -> &'static [Window]
    ensures table { result.now ≡ windows }
    ensures every { (w : Window) → Contains result.now w }
    ensures once { AreDistinct result.now }
{
    windows_table()
}

#[tactic(auto, unfolding(crate::specs::Find::windows))]
fn windows_table() -> &'static [Window]
    ensures { result.now ≡ windows }
{
    &WINDOWS
}

impl Window {
    /// The function's name.
    pub fn name(self) -> &'static str
        ensures name { result.now ≡ window_name self }

        // No two have one name.
        ensures own { (w : Window) → window_name w ≡ result.now → w ≡ self }
    {
        name_of(self)
    }
}

#[tactic(auto, unfolding(crate::specs::Names::window_name))]
fn name_of(window: Window) -> &'static str
    ensures name { result.now ≡ window_name window }
{
    match window {
        Window::Prev => "prev",
        Window::Next => "next",
        Window::RowCumsum => "row_cumsum",
        Window::RowNumber => "row_number",
    }
}

#[tactic(auto, unfolding(crate::specs::Find::named_among))]
pub(crate) fn window_among(windows: &[Window], name: &str) -> Option<Window>
    ensures { result ≡ named_among window_name windows.now name.now }
{
    let mut left = windows;
    'names: while let [window, more @ ..] = left {
        if window.name() == name {
            return Some(*window);
        }
        left = more;
    }
    None
}
