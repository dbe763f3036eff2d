// What no contract can say: that calls succeed, what their texts look like, and each growth of memory refused in turn.
mod assertions;
mod ends;
mod ports;
mod printing;
mod reading;
mod running;
mod std_ports;
