mod locations;
mod privileges;
mod properties;
mod readers;
mod tables;
mod values;
