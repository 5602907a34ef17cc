//! The texts of `java.lang`, but for its exceptions.
/// `java.lang` but for its exceptions, `java.lang.Object` first.
pub const LANG: &str = r#"package java.lang;

import java.io.InputStream;
import java.io.PrintStream;
import java.util.Iterator;

public class Object {
    private native String className();

    public native int hashCode();

    public boolean equals(Object other) {
        return this == other;
    }

    public String toString() {
        return className().concat("@").concat(hexadecimal(hashCode()));
    }

    private static String hexadecimal(int number) {
        int length = 1;
        for (int rest = number >>> 4; rest != 0; rest = rest >>> 4) {
            length++;
        }
        char[] digits = new char[length];
        int rest = number;
        for (int at = length - 1; at >= 0; at--) {
            int digit = rest & 15;
            digits[at] = (char) (digit < 10 ? '0' + digit : 'a' + digit - 10);
            rest = rest >>> 4;
        }
        return new String(digits);
    }
}

public interface Comparable<T> {
    int compareTo(T other);
}

public interface Iterable<T> {
    Iterator<T> iterator();
}

public final class String implements Comparable<String> {
    private final char[] value;
    private int hash;

    public String(char[] value) {
        this(value, 0, value.length);
    }

    private String(char[] from, int start, int length) {
        char[] value = new char[length];
        for (int at = 0; at < length; at++) {
            value[at] = from[start + at];
        }
        this.value = value;
    }

    private String(char[] first, char[] second) {
        char[] value = new char[first.length + second.length];
        for (int at = 0; at < first.length; at++) {
            value[at] = first[at];
        }
        for (int at = 0; at < second.length; at++) {
            value[first.length + at] = second[at];
        }
        this.value = value;
    }

    public int length() {
        return value.length;
    }

    public boolean isEmpty() {
        return value.length == 0;
    }

    public char charAt(int index) {
        if (index < 0 || index >= value.length) {
            throw outOfRange(index);
        }
        return value[index];
    }

    public boolean equals(Object other) {
        if (this == other) {
            return true;
        }
        if (!(other instanceof String)) {
            return false;
        }
        String text = (String) other;
        return text.value.length == value.length && holds(text, 0);
    }

    public int hashCode() {
        int hash = this.hash;
        if (hash == 0) {
            char[] value = this.value;
            for (int at = 0; at < value.length; at++) {
                hash = 31 * hash + value[at];
            }
            this.hash = hash;
        }
        return hash;
    }

    public String toString() {
        return this;
    }

    public int compareTo(String other) {
        char[] first = value;
        char[] second = other.value;
        for (int at = 0; at < first.length && at < second.length; at++) {
            if (first[at] != second[at]) {
                return first[at] - second[at];
            }
        }
        return first.length - second.length;
    }

    public String concat(String text) {
        if (text.value.length == 0) {
            return this;
        }
        return new String(value, text.value);
    }

    public String substring(int begin) {
        return substring(begin, value.length);
    }

    public String substring(int begin, int end) {
        if (begin < 0) {
            throw outOfRange(begin);
        }
        if (end > value.length) {
            throw outOfRange(end);
        }
        if (begin > end) {
            throw outOfRange(end - begin);
        }
        if (begin == 0 && end == value.length) {
            return this;
        }
        return new String(value, begin, end - begin);
    }

    private static StringIndexOutOfBoundsException outOfRange(int index) {
        return new StringIndexOutOfBoundsException("String index out of range: ".concat(valueOf(index)));
    }

    public int indexOf(int character) {
        if (character >= 0x10000 && character <= 0x10ffff) {
            char[] pair = new char[2];
            pair[0] = (char) (0xd7c0 + (character >> 10));
            pair[1] = (char) (0xdc00 + (character & 0x3ff));
            return indexOf(new String(pair));
        }
        char[] value = this.value;
        for (int at = 0; at < value.length; at++) {
            if (value[at] == character) {
                return at;
            }
        }
        return -1;
    }

    public int indexOf(String text) {
        int last = value.length - text.value.length;
        for (int at = 0; at <= last; at++) {
            if (holds(text, at)) {
                return at;
            }
        }
        return -1;
    }

    public boolean startsWith(String prefix) {
        return prefix.value.length <= value.length && holds(prefix, 0);
    }

    public boolean endsWith(String suffix) {
        return suffix.value.length <= value.length && holds(suffix, value.length - suffix.value.length);
    }

    private boolean holds(String text, int start) {
        char[] value = this.value;
        char[] other = text.value;
        for (int at = 0; at < other.length; at++) {
            if (value[start + at] != other[at]) {
                return false;
            }
        }
        return true;
    }

    public char[] toCharArray() {
        char[] copy = new char[value.length];
        for (int at = 0; at < copy.length; at++) {
            copy[at] = value[at];
        }
        return copy;
    }

    public static String valueOf(Object object) {
        return object == null ? "null" : object.toString();
    }

    public static String valueOf(char character) {
        char[] value = new char[1];
        value[0] = character;
        return new String(value);
    }

    public static String valueOf(int number) {
        return valueOf((long) number);
    }

    public static String valueOf(long number) {
        char[] digits = new char[20];
        int at = 20;
        long rest = number < 0 ? number : -number;
        do {
            at--;
            digits[at] = (char) ('0' - rest % 10);
            rest = rest / 10;
        } while (rest != 0);
        if (number < 0) {
            at--;
            digits[at] = '-';
        }
        return new String(digits, at, 20 - at);
    }

    public static String valueOf(boolean truth) {
        return truth ? "true" : "false";
    }
}

public final class StringBuilder {
    private char[] value;
    private int count;

    public StringBuilder() {
        value = new char[16];
    }

    public StringBuilder(String text) {
        value = new char[text.length() + 16];
        append(text);
    }

    private void makeRoom(int needed) {
        if (needed > value.length) {
            int room = value.length * 2;
            char[] larger = new char[room < needed ? needed : room];
            for (int at = 0; at < count; at++) {
                larger[at] = value[at];
            }
            value = larger;
        }
    }

    public StringBuilder append(String text) {
        String added = text == null ? "null" : text;
        int length = added.length();
        makeRoom(count + length);
        for (int at = 0; at < length; at++) {
            value[count + at] = added.charAt(at);
        }
        count = count + length;
        return this;
    }

    public StringBuilder append(char character) {
        makeRoom(count + 1);
        value[count] = character;
        count++;
        return this;
    }

    public StringBuilder append(Object object) {
        return append(String.valueOf(object));
    }

    public StringBuilder append(int number) {
        return append(String.valueOf(number));
    }

    public StringBuilder append(long number) {
        return append(String.valueOf(number));
    }

    public StringBuilder append(boolean truth) {
        return append(String.valueOf(truth));
    }

    public int length() {
        return count;
    }

    public char charAt(int index) {
        if (index < 0 || index >= count) {
            throw new StringIndexOutOfBoundsException("String index out of range: ".concat(String.valueOf(index)));
        }
        return value[index];
    }

    public String toString() {
        char[] exact = new char[count];
        for (int at = 0; at < count; at++) {
            exact[at] = value[at];
        }
        return new String(exact);
    }
}

public abstract class Number {
    public byte byteValue() {
        return (byte) intValue();
    }

    public short shortValue() {
        return (short) intValue();
    }

    public abstract int intValue();

    public abstract long longValue();
}

public final class Byte extends Number implements Comparable<Byte> {
    public static final byte MIN_VALUE = -128;
    public static final byte MAX_VALUE = 127;

    private static final Byte[] KEPT = new Byte[256];

    private final byte value;

    private Byte(byte value) {
        this.value = value;
    }

    public static Byte valueOf(byte value) {
        Byte kept = KEPT[value + 128];
        if (kept == null) {
            kept = new Byte(value);
            KEPT[value + 128] = kept;
        }
        return kept;
    }

    public byte byteValue() {
        return value;
    }

    public int intValue() {
        return value;
    }

    public long longValue() {
        return value;
    }

    public boolean equals(Object other) {
        return other instanceof Byte && ((Byte) other).value == value;
    }

    public int hashCode() {
        return value;
    }

    public String toString() {
        return String.valueOf((int) value);
    }

    public int compareTo(Byte other) {
        return value - other.value;
    }
}

public final class Short extends Number implements Comparable<Short> {
    public static final short MIN_VALUE = -32768;
    public static final short MAX_VALUE = 32767;

    private static final Short[] KEPT = new Short[256];

    private final short value;

    private Short(short value) {
        this.value = value;
    }

    public static Short valueOf(short value) {
        if (value < -128 || value > 127) {
            return new Short(value);
        }
        Short kept = KEPT[value + 128];
        if (kept == null) {
            kept = new Short(value);
            KEPT[value + 128] = kept;
        }
        return kept;
    }

    public short shortValue() {
        return value;
    }

    public int intValue() {
        return value;
    }

    public long longValue() {
        return value;
    }

    public boolean equals(Object other) {
        return other instanceof Short && ((Short) other).value == value;
    }

    public int hashCode() {
        return value;
    }

    public String toString() {
        return String.valueOf((int) value);
    }

    public int compareTo(Short other) {
        return value - other.value;
    }
}

public final class Integer extends Number implements Comparable<Integer> {
    public static final int MIN_VALUE = -2147483648;
    public static final int MAX_VALUE = 2147483647;

    private static final Integer[] KEPT = new Integer[256];

    private final int value;

    private Integer(int value) {
        this.value = value;
    }

    public static Integer valueOf(int value) {
        if (value < -128 || value > 127) {
            return new Integer(value);
        }
        Integer kept = KEPT[value + 128];
        if (kept == null) {
            kept = new Integer(value);
            KEPT[value + 128] = kept;
        }
        return kept;
    }

    public static int parseInt(String text) {
        long value = Long.parseLong(text);
        if (value < MIN_VALUE || value > MAX_VALUE) {
            throw new NumberFormatException("For input string: \"".concat(text).concat("\""));
        }
        return (int) value;
    }

    public int intValue() {
        return value;
    }

    public long longValue() {
        return value;
    }

    public boolean equals(Object other) {
        return other instanceof Integer && ((Integer) other).value == value;
    }

    public int hashCode() {
        return value;
    }

    public String toString() {
        return String.valueOf(value);
    }

    public int compareTo(Integer other) {
        return value < other.value ? -1 : value == other.value ? 0 : 1;
    }
}

public final class Long extends Number implements Comparable<Long> {
    public static final long MIN_VALUE = -9223372036854775808L;
    public static final long MAX_VALUE = 9223372036854775807L;

    private static final Long[] KEPT = new Long[256];

    // The decimal zeros of Unicode 6.0 behind that of ASCII, each followed by the nine other digits.
    private static final String ZEROS = "\u0660\u06f0\u07c0\u0966\u09e6\u0a66\u0ae6\u0b66\u0be6\u0c66\u0ce6\u0d66\u0e50\u0ed0\u0f20\u1040\u1090\u17e0\u1810\u1946\u19d0\u1a80\u1a90\u1b50\u1bb0\u1c40\u1c50\ua620\ua8d0\ua900\ua9d0\uaa50\uabf0\uff10";

    private final long value;

    private Long(long value) {
        this.value = value;
    }

    public static Long valueOf(long value) {
        if (value < -128 || value > 127) {
            return new Long(value);
        }
        int at = (int) value + 128;
        Long kept = KEPT[at];
        if (kept == null) {
            kept = new Long(value);
            KEPT[at] = kept;
        }
        return kept;
    }

    public static long parseLong(String text) {
        if (text == null) {
            throw new NumberFormatException("null");
        }
        int length = text.length();
        boolean negative = length > 0 && text.charAt(0) == '-';
        int at = negative || length > 0 && text.charAt(0) == '+' ? 1 : 0;
        boolean good = at < length;
        long least = negative ? MIN_VALUE : -MAX_VALUE;
        long value = 0;
        while (good && at < length) {
            int digit = digit(text.charAt(at));
            good = digit >= 0 && value >= least / 10 && value * 10 >= least + digit;
            value = value * 10 - digit;
            at++;
        }
        if (!good) {
            throw new NumberFormatException("For input string: \"".concat(text).concat("\""));
        }
        return negative ? value : -value;
    }

    private static int digit(char character) {
        if (character <= '9') {
            return character - '0';
        }
        for (int at = 0; at < ZEROS.length(); at++) {
            int digit = character - ZEROS.charAt(at);
            if (digit >= 0 && digit < 10) {
                return digit;
            }
        }
        return -1;
    }

    public int intValue() {
        return (int) value;
    }

    public long longValue() {
        return value;
    }

    public boolean equals(Object other) {
        return other instanceof Long && ((Long) other).value == value;
    }

    public int hashCode() {
        return (int) (value ^ value >>> 32);
    }

    public String toString() {
        return String.valueOf(value);
    }

    public int compareTo(Long other) {
        return value < other.value ? -1 : value == other.value ? 0 : 1;
    }
}

public final class Character implements Comparable<Character> {
    private static final Character[] KEPT = new Character[128];

    private final char value;

    private Character(char value) {
        this.value = value;
    }

    public static Character valueOf(char value) {
        if (value > 127) {
            return new Character(value);
        }
        Character kept = KEPT[value];
        if (kept == null) {
            kept = new Character(value);
            KEPT[value] = kept;
        }
        return kept;
    }

    public char charValue() {
        return value;
    }

    public boolean equals(Object other) {
        return other instanceof Character && ((Character) other).value == value;
    }

    public int hashCode() {
        return value;
    }

    public String toString() {
        return String.valueOf(value);
    }

    public int compareTo(Character other) {
        return value - other.value;
    }
}

public final class Boolean implements Comparable<Boolean> {
    private static final Boolean YES = new Boolean(true);
    private static final Boolean NO = new Boolean(false);

    private final boolean value;

    private Boolean(boolean value) {
        this.value = value;
    }

    public static Boolean valueOf(boolean value) {
        return value ? YES : NO;
    }

    public boolean booleanValue() {
        return value;
    }

    public boolean equals(Object other) {
        return other instanceof Boolean && ((Boolean) other).value == value;
    }

    public int hashCode() {
        return value ? 1231 : 1237;
    }

    public String toString() {
        return String.valueOf(value);
    }

    public int compareTo(Boolean other) {
        return value == other.value ? 0 : value ? 1 : -1;
    }
}

public final class Math {
    private Math() { }

    public static int abs(int number) {
        return number < 0 ? -number : number;
    }

    public static long abs(long number) {
        return number < 0 ? -number : number;
    }

    public static int max(int first, int second) {
        return first < second ? second : first;
    }

    public static long max(long first, long second) {
        return first < second ? second : first;
    }

    public static int min(int first, int second) {
        return first < second ? first : second;
    }

    public static long min(long first, long second) {
        return first < second ? first : second;
    }
}

public final class System {
    public static final InputStream in = new Input();
    public static final PrintStream out = new PrintStream();

    private System() { }

    public static void exit(int status) {
        halt(status);
    }

    private static native void halt(int status);

    private static native int readByte();

    private static class Input extends InputStream {
        public int read() {
            return readByte();
        }
    }
}
"#;
