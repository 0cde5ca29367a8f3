//! Bytes of the standards' examples, and what comes of them.
mod bytes;
mod control;
mod frames;
mod messages;
mod packets;
mod player;
mod pldm;
mod readers;
mod scene;
mod wrong;
