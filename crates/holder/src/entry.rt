// The entries of a table, what changes them, and tests of them.
ghost use Rattle.std.specs.Prelude.{◌≡◌, Bool};
ghost use Rattle.interface.specs.declared.Request.{Request as HeldRequest};

use interface::Request;

// What a table keeps of one held request.
pub trait OfRequest {
    ghost request: { Self → HeldRequest };

    fn request(&self) -> Request
        ensures { result ≡ request self.now };
}

// A change of an entry. A closure in its place would have to be one that may be called.
pub trait Change<E> {
    ghost changed: { Self → E → E };

    fn changed(&self, entry: E) -> E
        ensures { result ≡ changed self.now entry };
}

// A test that an entry passes or not.
pub trait Test<E> {
    ghost passes: { Self → E → Bool };

    fn passes(&self, entry: E) -> bool
        ensures { result ≡ passes self.now entry };
}
