//! A service of J1939 for C: the stations of one bus for the thread that has the bus, and clients and inboxes for the threads of
//! applications. A handle, which owns one of the three, is passed into each call and returned by `out`. `fulwethi_service.h` has
//! functions over these that take a pointer to the handle.
#![tactic(auto)]

mod client_handle;
mod clients;
mod codes;
mod compare;
mod desk;
mod detach;
mod ends;
mod frames;
mod inbox_handle;
mod inboxes;
mod news;
mod ports;
mod post;
mod readers;
mod service;
mod service_handle;
mod shown;
mod time;
mod turns;
