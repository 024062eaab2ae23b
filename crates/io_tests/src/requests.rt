// Requests, and a whole response.

/// The upload of `abc`.
pub const UPLOAD: &[u8] =
    b"PUT /blobs/ba7816bf8f01cfea414140de5dae2223b00361a396177a9cb410ff61f20015ad HTTP/1.1\r\nContent-Length: 3\r\n\r\nabc";

/// A target without a route.
pub const NO_ROUTE: &[u8] = b"GET /nope HTTP/1.1\r\n\r\n";

/// What a target without a route is answered.
pub const NOT_FOUND: &[u8] =
    b"HTTP/1.1 404 Not Found\r\nContent-Type: application/json\r\nContent-Length: 17\r\nConnection: close\r\n\r\n{\"fault\":\"route\"}";
