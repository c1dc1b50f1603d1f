/// Where in a scenario a line ends, after the first two.
#[derive(Clone, Copy, Debug, PartialEq, Eq)]
pub enum Place {
    /// After the system line or a task.
    Tasks,
    /// After an object.
    Objects,
    /// In a thread's script.
    Script,
    /// After the order line.
    Ordered,
    /// After the end line.
    Ended,
}
