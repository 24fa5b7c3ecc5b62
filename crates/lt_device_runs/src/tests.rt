mod bench;
mod ends;
mod failing;
mod files;
mod opened;
mod script;
mod steps;
