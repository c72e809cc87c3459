// A window, by value between table, sheet and checks: document 01, "Outage table and sheet".
#[derive(Clone, Copy)]
pub struct Window {
    pub start: f64,
    pub end: f64,
}
