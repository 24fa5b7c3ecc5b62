mod blocks;
mod files;
mod reading;
mod writing;
