mod cursors;
mod looking;
