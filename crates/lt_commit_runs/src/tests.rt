mod spelling;
mod stopping;
