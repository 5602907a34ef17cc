//! The texts of the exceptions of `java.lang`.
/// The exceptions of `java.lang`, each below its superclass.
pub const THROWN: &str = r#"package java.lang;

public class Throwable {
    private final String message;

    public Throwable() {
        message = null;
    }

    public Throwable(String message) {
        this.message = message;
    }

    private native String className();

    public String getMessage() {
        return message;
    }

    public String toString() {
        String name = className();
        String message = getMessage();
        return message == null ? name : name.concat(": ").concat(message);
    }
}

public class Exception extends Throwable {
    public Exception() { }

    public Exception(String message) { super(message); }
}

public class RuntimeException extends Exception {
    public RuntimeException() { }

    public RuntimeException(String message) { super(message); }
}

public class Error extends Throwable {
    public Error() { }

    public Error(String message) { super(message); }
}

public class LinkageError extends Error {
    public LinkageError() { }

    public LinkageError(String message) { super(message); }
}

public class ExceptionInInitializerError extends LinkageError {
    public ExceptionInInitializerError() { }

    public ExceptionInInitializerError(String message) { super(message); }
}

public class NoClassDefFoundError extends LinkageError {
    public NoClassDefFoundError() { }

    public NoClassDefFoundError(String message) { super(message); }
}

public class ArithmeticException extends RuntimeException {
    public ArithmeticException() { }

    public ArithmeticException(String message) { super(message); }
}

public class ArrayStoreException extends RuntimeException {
    public ArrayStoreException() { }

    public ArrayStoreException(String message) { super(message); }
}

public class ClassCastException extends RuntimeException {
    public ClassCastException() { }

    public ClassCastException(String message) { super(message); }
}

public class NegativeArraySizeException extends RuntimeException {
    public NegativeArraySizeException() { }

    public NegativeArraySizeException(String message) { super(message); }
}

public class NullPointerException extends RuntimeException {
    public NullPointerException() { }

    public NullPointerException(String message) { super(message); }
}

public class IndexOutOfBoundsException extends RuntimeException {
    public IndexOutOfBoundsException() { }

    public IndexOutOfBoundsException(String message) { super(message); }
}

public class ArrayIndexOutOfBoundsException extends IndexOutOfBoundsException {
    public ArrayIndexOutOfBoundsException() { }

    public ArrayIndexOutOfBoundsException(String message) { super(message); }
}

public class StringIndexOutOfBoundsException extends IndexOutOfBoundsException {
    public StringIndexOutOfBoundsException() { }

    public StringIndexOutOfBoundsException(String message) { super(message); }
}

public class IllegalArgumentException extends RuntimeException {
    public IllegalArgumentException() { }

    public IllegalArgumentException(String message) { super(message); }
}

public class NumberFormatException extends IllegalArgumentException {
    public NumberFormatException() { }

    public NumberFormatException(String message) { super(message); }
}

public class IllegalStateException extends RuntimeException {
    public IllegalStateException() { }

    public IllegalStateException(String message) { super(message); }
}

public class UnsupportedOperationException extends RuntimeException {
    public UnsupportedOperationException() { }

    public UnsupportedOperationException(String message) { super(message); }
}
"#;
