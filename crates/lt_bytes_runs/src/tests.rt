mod dependencies;
mod filters;
mod periods;
mod plans;
mod records;
