//! What no clause says: words that `--help` leaves out, and streams that fail. The output of scripts is compared in
//! the folder of examples.
mod help;
mod streams;
