// The whole program over readers, writers and heaps in memory, which fail at a call: what it writes then, its messages and
// its statuses, which the contracts state in part. What it does where nothing fails is tested in the folder cli_tests.
mod asker;
mod assertions;
mod ends;
mod faults;
mod hostile;
mod memory;
mod ports;
mod progress;
mod stats;
mod stops;
mod words;
