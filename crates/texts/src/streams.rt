// The standard streams' numbers, as the system has them. std's own streams take a handle of the runtime, which every
// function that puts a text would hand on.
pub const STDIN_FILENO: i32 = 0;

pub const STDOUT_FILENO: i32 = 1;
