//! The texts of `java.io`.
/// `java.io`.
pub const STREAMS: &str = r#"package java.io;

public class IOException extends Exception {
    public IOException() { }

    public IOException(String message) { super(message); }
}

public abstract class InputStream {
    public abstract int read() throws IOException;
}

public class PrintStream {
    private static native void put(int value);

    public void write(int value) {
        put(value);
    }

    private static void putText(String text) {
        String printed = text == null ? "null" : text;
        int length = printed.length();
        int at = 0;
        while (at < length) {
            int character = printed.charAt(at);
            at++;
            if (character < 0x80) {
                put(character);
            } else if (character < 0x800) {
                put(0xc0 + (character >> 6));
                put(0x80 + (character & 63));
            } else if (character < 0xd800 || character > 0xdfff) {
                putThree(0xe0, character);
            } else if (character < 0xdc00 && at < length && isLow(printed.charAt(at))) {
                int whole = 0x10000 + (character - 0xd800 << 10) + (printed.charAt(at) - 0xdc00);
                at++;
                put(0xf0 + (whole >> 18));
                putThree(0x80, whole & 0x3ffff);
            } else {
                put('?');
            }
        }
    }

    private static boolean isLow(char unit) {
        return unit >= 0xdc00 && unit <= 0xdfff;
    }

    private static void putThree(int lead, int character) {
        put(lead + (character >> 12));
        put(0x80 + (character >> 6 & 63));
        put(0x80 + (character & 63));
    }

    public void print(String text) {
        putText(text);
    }

    public void print(Object object) {
        putText(String.valueOf(object));
    }

    public void print(char character) {
        putText(String.valueOf(character));
    }

    public void print(int number) {
        putText(String.valueOf(number));
    }

    public void print(long number) {
        putText(String.valueOf(number));
    }

    public void print(boolean truth) {
        putText(String.valueOf(truth));
    }

    public void println() {
        put(10);
    }

    public void println(String text) {
        print(text);
        put(10);
    }

    public void println(Object object) {
        String text = String.valueOf(object);
        print(text);
        put(10);
    }

    public void println(char character) {
        print(character);
        put(10);
    }

    public void println(int number) {
        print(number);
        put(10);
    }

    public void println(long number) {
        print(number);
        put(10);
    }

    public void println(boolean truth) {
        print(truth);
        put(10);
    }
}
"#;
