mod bounds;
mod links;
mod messages;
