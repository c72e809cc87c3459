// What an outage table and its sheet are: definitions and their laws, and the type of a window.
#![tactic(auto)]

pub mod window;

pub use window::Window;
