ghost use Rattle.std.specs.Prelude.{◌≡◌, ◌≤◌, ◌++◌, ℕ, List, length, take, OnOk};

use net_base::OutOfMemory;
use std::alloc::Global;

/// What is printed as a line.
pub trait PrintedLine {
    /// The line, without its line feed.
    ghost text: { Self → List ℕ };

    /// Prints it behind these bytes. A part of it may come where memory is wanting.
    fn print(&self, alloc: Global, bytes: &mut Vec<u8>) -> Result<(), OutOfMemory>
        ensures ok { OnOk result (bytes.new.items ≡ bytes.old.items ++ text self.now) }
        ensures more { length bytes.old.items ≤ length bytes.new.items }
        ensures front { take (length bytes.old.items) bytes.new.items ≡ bytes.old.items };
}
