mod commands;
mod lines;
mod replies;
mod rows;
mod schemas;
